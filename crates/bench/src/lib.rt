// The bench values that are proved (SCOPE 11.1): no code, one list in specs/ and its proof.
#![tactic(auto)]
