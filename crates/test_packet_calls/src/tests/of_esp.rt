mod extended;
mod fixture;
mod laws;
mod lists;
mod memory;
mod opening;
mod sealing;
