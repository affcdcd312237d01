mod draws;
mod fixture;
mod incoming;
mod memory;
mod outgoing;
mod plain;
mod small;
