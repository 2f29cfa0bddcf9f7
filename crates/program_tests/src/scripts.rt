// Scripts as text: what their lines say, and what is written when they are run.
mod imports;
mod lines;
mod runs;
mod tellings;
