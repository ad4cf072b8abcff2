// Document 01's sample phrase as a record: its bytes under specs/, and theorems about them under proofs/. No code.

#![tactic(auto)]
