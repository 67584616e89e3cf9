//! A typed program as the theory of runs sees it, and that it is such a program as the laws of runs ask for.
//!
//! What its tasks do is their meaning, with objects and local regions named by the tasks that make them; the root does `main`
//! on the first object and the argument; and a block may be entered while another is open where none of their effects
//! interfere.
#![tactic(auto)]

pub mod laws;
