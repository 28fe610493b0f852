// The forest that both engines keep: parents by residual steps, climbing, what hangs below a node, and hanging a part elsewhere.
#![tactic(auto)]
