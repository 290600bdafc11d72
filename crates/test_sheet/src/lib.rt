// The lines of document 01's test sheet that are marked P, as one theorem about the definitions: proofs/TestSheet.antt. RFC 3262's example of RAck:
// proofs/RAckExample.antt, here because its computing takes seconds, which no edit is to wait for.
#![tactic(auto)]
