mod asserts;
mod messages;
mod payloads;
