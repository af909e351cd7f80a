//! Worked cases of live boards, and games that threads take. Boards are compared with a plain one on the program, by
//! `crates/relay960/replays/by_chance.py`.

mod boards;
mod cases;
mod games;
mod memory;
mod slots;
mod stage;
mod table;
mod threads;
mod threads_by_chance;
mod travels;
