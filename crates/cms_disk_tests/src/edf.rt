// Volumes: opened, changed and made.
mod cases;
mod drafts;
mod empty_volumes;
mod openings;
mod volumes;
mod written_files;
