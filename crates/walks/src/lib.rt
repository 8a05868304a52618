// Which pairs of a state and a watcher state break a release on every maximal path: specs/ has the definitions, and
// proofs/ the laws.
#![tactic(auto)]
