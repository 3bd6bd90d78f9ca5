#![tactic(auto)]

// Separation of the exported functions: stated in specs/, proved in proofs/. No code.
