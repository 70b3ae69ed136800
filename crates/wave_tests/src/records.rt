mod parts;
mod uses;
mod world;
