mod asserts;
mod edges;
mod fixture;
mod memory;
mod opening;
mod sealing;
