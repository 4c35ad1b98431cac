mod again;
mod bodies;
mod schedules;
mod support;
