// Worked examples of FIPS 197 and NIST SP 800-38D as theorems about the definitions: see proofs/. There is no code here.
#![tactic(auto)]
