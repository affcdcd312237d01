mod block;
mod fixture;
mod plain;
mod recovery;
