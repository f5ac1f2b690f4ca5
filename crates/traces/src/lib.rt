// Words of actions, swaps of independent neighbours, and the Foata normal form: theory alone.
#![tactic(auto)]
