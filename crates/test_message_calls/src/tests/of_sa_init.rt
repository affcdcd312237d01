mod answering;
mod fixture;
mod judging;
mod messages;
