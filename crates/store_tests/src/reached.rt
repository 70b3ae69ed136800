mod goals;
mod levels;
mod support;
