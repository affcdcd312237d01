mod asserts;
mod faults;
mod of_auth;
mod of_caller;
mod of_children;
mod of_mac;
mod of_sa_init;
