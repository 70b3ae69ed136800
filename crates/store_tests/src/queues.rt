mod inputs;
mod random;
