// The fault queue: records of worked runs both ways (section 3.2), and the queue at its edges.
mod queue;
mod records;
