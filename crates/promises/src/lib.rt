// No code: the theorems that join least levels, the mapper, the verifier and the simulator.
#![tactic(auto)]
