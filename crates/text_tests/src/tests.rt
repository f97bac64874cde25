// Traces that are read, the largest inputs that are refused, and the lines of reports. All other texts and their faults
// are rows of `run_rows`.
mod accepted_traces;
mod largest_inputs;
mod parts_of_texts;
mod report_lines;
