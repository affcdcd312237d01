mod accepting;
mod asking;
mod fixture;
mod responding;
mod runs;
