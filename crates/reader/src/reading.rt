// What a call that reads answers.
use terms::Terms;

// A settlement that was read: how many rows and entries stand at the front of the lists, and its terms.
#[derive(Clone, Copy)]
pub struct Reading {
    // How many rows are held.
    pub held: usize,
    // How many entries there are.
    pub entries: usize,
    // How many names are unmapped.
    pub unmapped: usize,
    // The terms.
    pub terms: Terms,
}
