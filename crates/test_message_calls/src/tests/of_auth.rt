mod answering;
mod judging;
mod parts;
mod proving;
mod windows;
