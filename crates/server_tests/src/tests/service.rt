//! `random` has the events drawn by dice, which happen in a `scene` among `people`, beside the hall's plain model, and `memory` few of them
//! while memory is refused. `frames` has what is sent, by bytes.

mod frames;
mod memory;
mod people;
mod random;
mod scene;
