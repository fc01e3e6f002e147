//! What a layer holds: the volume that its chunk files stand for, and the files of a layer that is to hold a volume.
//! It has no code; the definitions stand in `specs/`.
#![tactic(auto)]
