//! A test for each page. What stands between its braces, but for the last line, is what the page shows.
mod embedding;
mod lower;
