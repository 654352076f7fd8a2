//! What tries the trees for threads, of which `asks` tells what is asked of each kind alike.

pub mod asks;
pub mod callers;
pub mod histories;
pub mod refusals;
pub mod threaded;
pub mod trees;
pub mod wants;
