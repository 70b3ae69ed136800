mod changes;
mod shown;
