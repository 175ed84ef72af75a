// Procedures of EXEC 2, their words and their functions.
mod cases;
mod functions;
mod procedures;
mod runs;
mod shared;
