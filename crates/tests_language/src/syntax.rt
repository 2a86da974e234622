// Texts read as jobs and programs, and what comes of those that are refused.
mod naming;
mod pairs;
mod programs;
mod rules;
