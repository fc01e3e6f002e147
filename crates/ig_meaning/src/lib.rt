//! What a command means: its words, the stage that it plans, the files that are wanted of it, its fault and its lines.
//! It has no code; the definitions stand in `specs/`, and grow by a case with each new kind of stage and each command.
#![tactic(auto)]
