//! Tests of the engines that the program cannot show: bounds that no argument sets, devices that fail once and recover, and
//! writers that take no byte.

mod answerers;
mod bounds;
mod counting;
mod failures;
