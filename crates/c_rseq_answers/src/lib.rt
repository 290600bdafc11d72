// That what the calls on an RSeq store answer is what a C caller is to be handed (proofs/ReturnLaws.antt); `c_answers` hands it over.
#![tactic(auto)]
