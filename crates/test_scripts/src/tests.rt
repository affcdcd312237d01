mod asserts;
mod of_console;
mod of_engine;
mod of_moments;
mod streams;
mod texts;
