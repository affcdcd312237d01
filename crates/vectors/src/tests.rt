mod asserts;
mod entries;
mod keying;
mod long;
mod numbers;
mod sealing;
