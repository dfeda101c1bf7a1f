// Memory: how a state block, a live stack and a store hold a world.

#![tactic(auto)]
