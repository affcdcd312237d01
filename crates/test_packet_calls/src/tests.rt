mod asserts;
mod of_esp;
mod of_lanes;
mod of_replay;
mod of_requests;
mod of_sadb;
mod of_traffic;
