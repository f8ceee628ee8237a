// What the sweep says of a moment is what the board does: specs/Laws.antt states it, proofs/ proves it. There is no code here.
#![tactic(auto)]
