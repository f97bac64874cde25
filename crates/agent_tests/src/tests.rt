// An agent beside passes.
mod passes;
