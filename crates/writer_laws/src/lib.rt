// The laws of the writer of device tables (request One of document 02): statements in specs/, proofs in proofs/. There is no code.
#![tactic(auto)]
