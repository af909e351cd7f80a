//! What a journal keeps of a hall, and the hall after a restart: what a line says, what is read of a file, what a restart makes of it, and
//! what is written of a hall.

mod bodies;
mod files;
mod kept;
mod restarts;
mod scribes;
