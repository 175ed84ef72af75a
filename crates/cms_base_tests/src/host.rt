// The world of real files: what it asks of its system, and real files, printers, readers and clocks that fail.
mod cases;
mod files;
mod logged;
mod steps;
mod streams;
