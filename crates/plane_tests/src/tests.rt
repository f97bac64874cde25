// Rotations, the marks of pages, and records in several threads.
mod beside_rotations;
mod four_threads;
mod pieces;
mod rotations;
mod whole_pages;
