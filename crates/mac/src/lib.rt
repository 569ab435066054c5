// No code: the claims about the definitions below. specs/ has what they speak of, proofs/ the theorems; docs/DEFINITIONS.md lists them.
#![tactic(auto)]
