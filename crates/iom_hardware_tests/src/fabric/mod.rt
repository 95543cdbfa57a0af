// The fabric, at its edges.
mod messages;
