#![tactic(auto)]

// Laws of the definitions, in proofs/; specs/ has words that contracts cite. No code.
