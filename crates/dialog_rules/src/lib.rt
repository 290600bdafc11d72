// The rules of dialog records: what creation, requests, responses and the other calls make of a record, and which requests belong to it, as
// definitions (specs/) with their laws (proofs/). No code: `dialog`, `dialog_changes`, `dialog_updates` and the crates above them meet them.
#![tactic(auto)]
