//! Long lists of inputs, beside what is due to each.
mod inward;
mod mixed;
mod outward;
mod random;
mod worlds;
