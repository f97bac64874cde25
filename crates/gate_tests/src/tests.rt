// Scripts that are read and played, and the longest ones that are refused. What scripts are answered, and all other faults,
// are rows of `run_rows`.
mod accepted_scripts;
mod longest_inputs;
mod machine;
mod pages_left;
mod pieces;
